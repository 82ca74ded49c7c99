// The first of several faults.
ghost use Rattle.std.specs.Prelude.{◌≡◌, None};
ghost use Rattle.oil_rules.specs.First.{is_before, sooner, first_of};
ghost use Rattle.oil_rules.specs.Rules.{when};

use chk_base::place::Place;

/// A rule that is broken, by its number from 1 to 24, and the place where it is.
#[derive(Clone, Copy, PartialEq, Eq, Debug)]
pub struct Fault {
    pub rule: u8,
    pub place: Place,
}

impl Fault {
    // Whether it is at a lesser place, or there of a lesser rule.
    fn is_before(self, other: Fault) -> bool
        ensures { result ≡ is_before self other }
    {
        self.place.offset < other.place.offset
            || (self.place.offset == other.place.offset && self.rule < other.rule)
    }
}

/// The first fault of those that were seen.
#[derive(Clone, Copy)]
pub(crate) struct First {
    pub(crate) fault: Option<Fault>,
}

impl First {
    pub(crate) fn none() -> First
        ensures { result.fault ≡ None }
    {
        First { fault: None }
    }

    fn with(self, fault: Fault) -> First
        ensures { result.fault ≡ sooner self.fault fault }
    {
        match self.fault {
            None => First { fault: Some(fault) },
            Some(first) if fault.is_before(first) => First { fault: Some(fault) },
            Some(first) => First { fault: Some(first) },
        }
    }

    // With this fault too, where the rule is broken.
    pub(crate) fn seeing(self, broken: bool, rule: u8, place: Place) -> First
        ensures { result.fault ≡ first_of self.fault (when broken rule place) }
    {
        if broken {
            self.with(Fault { rule, place })
        } else {
            self
        }
    }
}
