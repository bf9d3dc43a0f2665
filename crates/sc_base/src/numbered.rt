//! Look-ups by numbers that count from 1.

ghost use Rattle.std.specs.Prelude.{◌≡◌};
ghost use Rattle.std.specs.Option.{option_copied};
ghost use Rattle.sc_base.specs.Numbered.{item_at};

/// The item with a number that counts from 1, or nothing where there is none.
pub fn item_at<T>(items: &[T], number: u32) -> Option<&T>
    ensures { option_copied result ≡ item_at items.now number }
{
    if number == 0 {
        return None;
    }
    items.get(number as usize - 1)
}
