// The first of several faults.
ghost use Rattle.std.specs.Prelude.{◌≡◌, None};
ghost use Rattle.c_rules.specs.First.{is_before, sooner, first_of, when};

use chk_base::place::Place;

/// A rule that is broken, by its number, and the place where it is.
#[derive(Clone, Copy, PartialEq, Eq, Debug)]
pub struct Fault {
    pub rule: u8,
    pub place: Place,
}

impl Fault {
    // Whether it is at a lesser place, or there of a lesser rule.
    fn is_before(self, other: Fault) -> bool
        ensures { result ≡ is_before self other }
    {
        self.place.offset < other.place.offset
            || (self.place.offset == other.place.offset && self.rule < other.rule)
    }
}

/// The first fault of those that were seen: that with the least place, and there of the least rule.
#[derive(Clone, Copy)]
pub struct First {
    pub fault: Option<Fault>,
}

impl First {
    /// No fault was seen.
    pub fn none() -> First
        ensures { result.fault ≡ None }
    {
        First { fault: None }
    }

    fn with(self, fault: Fault) -> First
        ensures { result.fault ≡ sooner self.fault fault }
    {
        match self.fault {
            None => First { fault: Some(fault) },
            Some(first) if fault.is_before(first) => First { fault: Some(fault) },
            Some(first) => First { fault: Some(first) },
        }
    }

    /// With this fault too, where the rule is broken.
    pub fn seeing(self, broken: bool, rule: u8, place: Place) -> First
        ensures { result.fault ≡ first_of self.fault (when broken rule place) }
    {
        if broken {
            self.with(Fault { rule, place })
        } else {
            self
        }
    }
}
