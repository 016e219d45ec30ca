ghost use Rattle.std.specs.Prelude.{◌≡◌, ◌+◌, IfOk};

use slint_base::Memory;

/// The next number. Where there is none, no memory would hold so many things.
pub(crate) fn next(number: usize) -> Result<usize, Memory>
    ensures { IfOk result (λ next. next ≡ number + 1) }
{
    let more = sum(number, 1)?;
    Ok(more)
}

/// The sum of two numbers of things. Where there is none, no memory would hold so many.
pub(crate) fn sum(a: usize, b: usize) -> Result<usize, Memory>
    ensures { IfOk result (λ sum. sum ≡ a + b) }
{
    match a.checked_add(b) {
        Some(sum) => Ok(sum),
        None => Err(Memory),
    }
}
