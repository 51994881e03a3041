//! Laws of scripts. Calls do nothing: a caller learns what they ensure.

ghost use Rattle.stateful_script.specs.Fields.{NumberIsDecimal};
ghost use Rattle.stateful_script.specs.Laws.{WholeIsRead, FirstIsNamed, LastIsEnded, PlansAreKept};

/// A field spells the number of which it is the decimal form, and no other.
pub fn number_is_decimal()
    ensures { NumberIsDecimal }
{}

/// A script is read whole: bytes are read exactly where they are lines with an LF behind each that
/// rules read.
pub fn whole_is_read()
    ensures { WholeIsRead }
{}

/// The line that is named is the first that isn't read: rules read the lines before it.
pub fn first_is_named()
    ensures { FirstIsNamed }
{}

/// A whole script is empty, or ends with an LF.
pub fn last_is_ended()
    ensures { LastIsEnded }
{}

/// Whatever a script names is there.
pub fn plans_are_kept()
    ensures { PlansAreKept }
{}
