//! Which locations of a log can be read.

ghost use Rattle.std.specs.Prelude.{◌≡◌, ◌+◌, Some, None, option_map, OnOk, IfErr, IsErrOf};
ghost use Rattle.stateful_db.specs.declared.batch.BatchError.TheVariants.{LocationOutOfOrder};
ghost use Rattle.stateful_db_keyless.specs.Reads.{out_of_order, unreadable, first_unreadable, refusal};

use stateful_base::Location;
use stateful_db::BatchError;

/// `LocationOutOfOrder` exactly where a location isn't greater than the one before, with the first
/// such.
fn check_order(locations: &[Location]) -> Result<(), BatchError>
    ensures ok { OnOk result (out_of_order locations.now ≡ None) }
    ensures err { IfErr result (λ why.
        option_map LocationOutOfOrder (out_of_order locations.now) ≡ Some why) }
    ensures fresh { IsErrOf result BatchError.StaleRead → ⊥ }
{
    for i in 1..locations.len() {
        let location = locations[i];
        if location.0 <= locations[i - 1].0 {
            return Err(BatchError::LocationOutOfOrder { location });
        }
    }
    Ok(())
}

/// `LocationOutOfBounds` exactly where a location is at or past the end, which is so many behind
/// `from`, and else `BelowInactivityFloor` exactly where it is below the floor.
fn check_range(floor: u64, from: u64, count: usize, location: Location) -> Result<(), BatchError>
    ensures ok { OnOk result (unreadable floor (from + count) location ≡ None) }
    ensures err { IfErr result (λ why. unreadable floor (from + count) location ≡ Some why) }
    ensures fresh { IsErrOf result BatchError.StaleRead → ⊥ }
{
    if location.0 >= from && location.0 - from >= count as u64 {
        return Err(BatchError::LocationOutOfBounds { location });
    }
    if location.0 < floor {
        return Err(BatchError::BelowInactivityFloor { location });
    }
    Ok(())
}

/// The same of several locations, with the first one that can't be read.
fn check_ranges(
    floor: u64,
    from: u64,
    count: usize,
    locations: &[Location],
) -> Result<(), BatchError>
    ensures ok { OnOk result (first_unreadable floor (from + count) locations.now ≡ None) }
    ensures err { IfErr result (λ why.
        first_unreadable floor (from + count) locations.now ≡ Some why) }
    ensures fresh { IsErrOf result BatchError.StaleRead → ⊥ }
{
    for location in locations {
        check_range(floor, from, count, *location)?;
    }
    Ok(())
}

/// Why locations can't be read of a log with this floor, whose end is so many behind `from`: their
/// order is looked at before their range.
pub(crate) fn check(
    floor: u64,
    from: u64,
    count: usize,
    locations: &[Location],
) -> Result<(), BatchError>
    ensures ok { OnOk result (refusal floor (from + count) locations.now ≡ None) }
    ensures err { IfErr result (λ why. refusal floor (from + count) locations.now ≡ Some why) }
    ensures fresh { IsErrOf result BatchError.StaleRead → ⊥ }
{
    check_order(locations)?;
    check_ranges(floor, from, count, locations)?;
    Ok(())
}
