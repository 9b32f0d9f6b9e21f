//! The distance in a conditional emergency stop message.

ghost use Rattle.std.specs.Prelude.{◌≡◌, ◌≤◌};
ghost use Rattle.rbc_place.specs.Plan.{max_length};
ghost use Rattle.rbc_zones.specs.Concerns.{told_distance, IsToldFor};

/// The greatest value of D_EMERGENCYSTOP, D_TSR and L_TSR.
pub(crate) const MAX_UNITS: u32 = 32_766;

/// Q_SCALE and D_EMERGENCYSTOP of a distance in units of 10 cm, at most 3,000,000. The distance is rounded down to
/// whole units of 10 cm, 1 m or 10 m, whichever is the finest in which it is at most 32,766.
pub fn stop_field(distance: u32) -> (u8, u16)
    requires { distance ≤ max_length }
    ensures field { result ≡ told_distance distance }
    ensures told { IsToldFor distance result.0 result.1 }
{
    let (scale, units) = if distance <= MAX_UNITS {
        (0, distance)
    } else if distance / 10 <= MAX_UNITS {
        (1, distance / 10)
    } else {
        (2, distance / 100)
    };
    (scale, units as u16)
}
