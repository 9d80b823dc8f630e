//! Bytes laid one behind the other in a lent slice. Where there is no room nothing is written.
ghost use Rattle.editing.specs.Inner.Laying.{Copied, Laid};

/// Copies bytes to the front of a slice.
pub fn copy(to: &mut [u8], from: &[u8])
    ensures { Copied from.now to.old to.new }
{
    if to.len() < from.len() {
        return;
    }
    to[..from.len()].copy_from_slice(from);
}

/// Two parts at the front of a slice, zeros behind them, whatever it held.
pub fn lay(to: &mut [u8], front: &[u8], back: &[u8])
    ensures { Laid front.now back.now to.old to.new }
{
    let middle = front.len();
    if to.len() < middle || to.len() - middle < back.len() {
        return;
    }
    let end = middle + back.len();
    copy(to, front);
    copy(&mut to[middle..], back);
    to[end..].fill(0);
}
