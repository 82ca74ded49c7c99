// The tree of an OIL text (OIL 2.5, 4): what stands in each part of it, with places.

mod lists;

use chk_base::place::Place;
use chk_base::text::{Name, Text};
use std::marker::Model;

/// How a value is written: as a name, as an integer in decimal or hexadecimal digits, as a number with a point, or between quotation marks.
#[derive(Clone, Copy, PartialEq, Eq, Debug)]
pub enum ValueForm {
    Word,
    Integer,
    Point,
    Quoted,
}

/// The value of an attribute. `negative` is true exactly where a `-` stands before it. `text` is as it is written, without a sign and
/// without the quotation marks. `place` is that of its first byte: of the sign, if there is one, and of the first quotation mark.
#[derive(Drop)]
pub struct Value {
    pub form: ValueForm,
    pub negative: bool,
    pub text: Text,
    pub place: Place,
}

/// An attribute `NAME = VALUE { NESTED };`. Without braces there is nothing nested.
#[cycle(attributes)]
#[derive(Drop)]
pub struct Attribute {
    pub name: Name,
    pub value: Value,
    pub nested: Attributes,
}

/// Attributes, in the order of the text. Contracts see them as plain trees, and the list of the first level by `listed`.
#[cycle(attributes)]
#[derive(Drop)]
pub struct Attributes {
    items: Vec<Attribute>,
}

impl Model for Attributes {
    ghost use Rattle.oil_tree.specs.PlainAttributes.{PlainAttributes, levels};
    ghost use Rattle.oil_tree.specs.PlainCode.{plain_code};

    ghost Value = { PlainAttributes };

    ghost coded = { plain_code };

    ghost use Rattle.oil_tree.specs.Listed.{plain};

    ghost view = { λ a. plain a.items.items };

    ghost size = { levels };

    ghost use Rattle.oil_tree.specs.Levels.{nested_levels};

    ghost size_decreases = { λ a h. nested_levels a.items.items };
}

/// What stands in the CPU section: an object `KIND NAME { ATTRIBUTES };`, or an include by the place of its `#`.
#[derive(Drop)]
pub enum Item {
    Object {
        kind: Name,
        name: Name,
        attributes: Attributes,
    },
    Include(Place),
}

/// What stands in the CPU section, in the order of the text.
#[derive(Drop)]
pub struct Items {
    items: Vec<Item>,
}

impl Model for Items {
    ghost use Rattle.std.specs.Prelude.{List};
    ghost use Rattle.std.specs.Coded.{coded_list};
    ghost use Rattle.oil_tree.specs.declared.tree.Item.{Item};
    ghost use Rattle.oil_tree.specs.contracts.tree.Item.{the_row};

    ghost Value = { List Item };

    ghost coded = { coded_list the_row.coded };

    ghost view = { λ a. a.items.items };
}

/// Places, in the order of the text.
#[derive(Drop)]
pub struct Places {
    items: Vec<Place>,
}

impl Model for Places {
    ghost use Rattle.std.specs.Prelude.{List};
    ghost use Rattle.chk_base.specs.declared.place.Place.{Place};

    ghost Value = { List Place };

    ghost view = { λ a. a.items.items };
}

/// A whole OIL text. `version` is the string after OIL_VERSION without its quotation marks, with the place of the first of them;
/// `includes` has the places of the `#` of each include before the CPU section and outside the IMPLEMENTATION section;
/// `implementation` is the place of the word IMPLEMENTATION; `cpu` is the name of the CPU section, and `items` what stands in it.
#[derive(Drop)]
pub struct OilTree {
    pub version: Name,
    pub includes: Places,
    pub implementation: Option<Place>,
    pub cpu: Name,
    pub items: Items,
}
