ghost use Rattle.std.specs.Prelude.{◌≡◌};
ghost use Rattle.store.specs.Kinds.{stands_apart, is_single, entries_of};

use block::kind::Kind;

// Whether runs of this kind belong to no list. Here and below all kinds are written out, and not by
// `matches!`, so that a new kind has to be placed.
pub fn stands_apart(kind: Kind) -> bool
    ensures { result ≡ stands_apart kind }
{
    match kind {
        Kind::Gc | Kind::Skip => true,
        Kind::Deleted
        | Kind::Json
        | Kind::Binary
        | Kind::Text
        | Kind::Embed
        | Kind::Format
        | Kind::List
        | Kind::Any
        | Kind::Doc => false,
    }
}

// Whether a run of this kind has one unit.
pub fn is_single(kind: Kind) -> bool
    ensures { result ≡ is_single kind }
{
    match kind {
        Kind::Binary | Kind::Embed | Kind::Format | Kind::List | Kind::Doc => true,
        Kind::Gc | Kind::Deleted | Kind::Json | Kind::Text | Kind::Any | Kind::Skip => false,
    }
}

// How many entries of the content a run of this kind and length has.
pub fn entries_of(kind: Kind, len: u32) -> u32
    ensures { result ≡ entries_of kind len }
{
    match kind {
        Kind::Json | Kind::Any => len,
        Kind::Binary | Kind::Text | Kind::Embed | Kind::Format | Kind::Doc => 1,
        Kind::Gc | Kind::Deleted | Kind::List | Kind::Skip => 0,
    }
}
