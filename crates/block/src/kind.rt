ghost use Rattle.std.specs.Prelude.{◌≡◌, Some, MatchResult, ◌≢◌};
ghost use Rattle.std.specs.Fmt.{padded};
ghost use Rattle.block.specs.Kinds.{number_of, is_counted, name_of};
ghost use Rattle.block.specs.declared.kind.Kind.{Kind};

use crate::number::UnknownNumber;
use std::fmt;

// What a run's units are. The kinds stand in the order of their numbers, from 0.
#[derive(Clone, Copy, PartialEq, Eq, Debug)]
pub enum Kind {
    Gc,
    Deleted,
    Json,
    Binary,
    Text,
    Embed,
    Format,
    List,
    Any,
    Doc,
    Skip,
}

impl Kind {
    // All kinds, in the order of their numbers.
    pub const ALL: [Kind; 11] = [
        Kind::Gc,
        Kind::Deleted,
        Kind::Json,
        Kind::Binary,
        Kind::Text,
        Kind::Embed,
        Kind::Format,
        Kind::List,
        Kind::Any,
        Kind::Doc,
        Kind::Skip,
    ];

    // Whether live units of this kind count towards the length of their list.
    pub fn is_countable(self) -> bool
        ensures { result ≡ is_counted self }
    {
        match self {
            Kind::Gc | Kind::Deleted | Kind::Format | Kind::Skip => false,
            Kind::Json
            | Kind::Binary
            | Kind::Text
            | Kind::Embed
            | Kind::List
            | Kind::Any
            | Kind::Doc => true,
        }
    }

    // The kind's name, for people.
    pub fn name(self) -> &'static str
        ensures { result.now ≡ name_of self }
    {
        match self {
            Kind::Gc => "collected",
            Kind::Deleted => "deleted",
            Kind::Json => "JSON",
            Kind::Binary => "binary",
            Kind::Text => "text",
            Kind::Embed => "embed",
            Kind::Format => "format",
            Kind::List => "list",
            Kind::Any => "any",
            Kind::Doc => "document",
            Kind::Skip => "skip",
        }
    }
}

// The number of the kind in a store.
impl From<Kind> for u8 {
    ghost from_gives = { λ kind number. number ≡ number_of kind };

    fn from(kind: Kind) -> u8 {
        kind as u8
    }
}

// The kind with this number; refused where no kind has it.
impl TryFrom<u8> for Kind {
    type Error = UnknownNumber;

    ghost try_from_gives = { λ number r. MatchResult r (λ kind. number_of kind ≡ number) (λ e. (e.number ≡ number) × ((kind : Kind) → number_of kind ≢ number)) };

    fn try_from(number: u8) -> Result<Kind, UnknownNumber> {
        Kind::ALL
            .get(number as usize)
            .copied()
            .ok_or(UnknownNumber { number })
    }
}

impl fmt::Display for Kind {
    ghost output = { λ kind. Some (name_of kind) };

    ghost styled_output = { λ kind spec. Some (padded spec (name_of kind)) };

    fn fmt<W: fmt::Write>(&self, f: &mut fmt::Formatter<W>) -> fmt::Result {
        f.pad(self.name())
    }
}
