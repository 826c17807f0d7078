ghost use Rattle.std.specs.Prelude.{◌≡◌, ◌^◌, ◌<◌, length, take, drop};

/// The first so many rows, or all where there are not so many, and those behind them.
pub(crate) fn split_front<T>(rows: &[T], count: u32) -> (&[T], &[T])
    ensures front { result.0.now ≡ take count rows.now }
    ensures behind { result.1.now ≡ drop count rows.now }
    ensures few { length result.0.now < 2 ^ 32 }
{
    rows.split_at_checked(count as usize).unwrap_or((rows, &[]))
}
