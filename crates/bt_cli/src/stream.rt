//! The value of `--stream`: a connection and one of its sides, as `0-A`.
ghost use Rattle.std.specs.Prelude.{◌≡◌};
ghost use Rattle.bt_cli.specs.Streams.{direction_in, side_named};

use bt_remarks::Side;
use bt_run::values::number_within;

/// Returns the side of this name.
fn side_of(name: &str) -> Option<Side>
    ensures { result ≡ side_named name.now }
{
    match name {
        "A" => Some(Side::A),
        "B" => Some(Side::B),
        _ => None,
    }
}

/// Returns the number and the side of a text.
///
/// It is a number from 0 to 4,294,967,295, a hyphen, and `A` or `B`; `None` for any other text.
pub fn direction_of(text: &str) -> Option<(u64, Side)>
    ensures { result ≡ direction_in text.now }
{
    let (digits, name) = text.split_once('-')?;
    let side = side_of(name)?;
    let number = number_within(digits, 0, 4_294_967_295)?;
    Some((number as u64, side))
}
