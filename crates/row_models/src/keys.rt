ghost use Rattle.std.specs.Prelude.{◌≡◌, ◌+◌, ◌<◌, ◌^◌, IfOk, vec_len};
ghost use Rattle.std.specs.List.Sorted.{IsSorted};
ghost use Rattle.std.specs.Ordering.{nat_cmp};
ghost use Rattle.row_models.specs.Rows.{keys_from, keys_gone, is_among};

use slint_base::Memory;
use std::alloc::Global;

/// A count of keys that follow each other.
pub fn keys_from(alloc: Global, first: u64, count: usize) -> Result<Vec<u64>, Memory>
    requires { first + count < 2 ^ 64 }
    ensures keys { IfOk result (λ keys. keys.items ≡ keys_from first count) }
    ensures count { IfOk result (λ keys. vec_len keys ≡ count) }
{
    let mut keys = Vec::with_capacity(alloc, count)?;
    for key in first..first + count as u64 {
        keys.push(key)?;
    }
    Ok(keys)
}

/// Whether a key is among sorted keys. It is looked up by halving.
fn is_among(sorted: &[u64], key: u64) -> bool
    requires { IsSorted nat_cmp sorted.now }
    ensures { result ≡ is_among sorted.now key }
{
    match sorted.binary_search(&key) {
        Ok(_) => true,
        Err(_) => false,
    }
}

/// The old keys that aren't among those now, in old order.
pub fn keys_gone(alloc: Global, now: &[u64], old: &[u64]) -> Result<Vec<u64>, Memory>
    ensures { IfOk result (λ gone. gone.items ≡ keys_gone now.now old.now) }
{
    let mut sorted = Vec::from_slice(alloc, now)?;
    sorted.sort_unstable();
    let mut gone = Vec::new(alloc);
    for key in old {
        if is_among(&sorted, *key) {
            continue;
        }
        gone.push(*key)?;
    }
    Ok(gone)
}
