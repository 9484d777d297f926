// Writing to the front of what a caller lent, terms or bytes.
ghost use Rattle.sheet.specs.Putting.{Put};

use calls::refusal::Refusal;

// The items to the front, where they fit; else nothing changes. What stands behind them stays.
pub(crate) fn put<T: Copy>(items: &[T], out: &mut [T]) -> Result<usize, Refusal>
    ensures { Put items.now out.old result out.new }
{
    let n = items.len();
    if n > out.len() {
        return Err(Refusal::Short(n));
    }
    out[0..n].copy_from_slice(items);
    Ok(n)
}
