//! What the distances of a message count in (SUBSET-026, 7.5).

ghost use Rattle.std.specs.Prelude.{◌≡◌, ◌≤◌, IfSome};
ghost use Rattle.rbc_rule.specs.Saying.{way_told, unit_told};

use rbc_track::Way;

/// The direction that a Q_DIR gives at a balise group. `None` for a Q_DIR that gives no direction.
pub fn way_told(nominal: Way, dir: u8) -> Option<Way>
    ensures { result ≡ way_told nominal dir }
{
    match (dir, nominal) {
        (1, _) => Some(nominal),
        (0, Way::Up) => Some(Way::Down),
        (0, Way::Down) => Some(Way::Up),
        _ => None,
    }
}

/// The unit that a Q_SCALE gives, in units of 10 cm. `None` for a spare Q_SCALE.
pub fn unit_told(scale: u8) -> Option<u32>
    ensures unit { result ≡ unit_told scale }
    ensures few { IfSome result (λ unit. unit ≤ 100) }
{
    match scale {
        0 => Some(1),
        1 => Some(10),
        2 => Some(100),
        _ => None,
    }
}
