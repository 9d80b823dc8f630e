//! The check of a block, and Seal.
ghost use Rattle.std.specs.Prelude.{◌≡◌, ◌<◌};
ghost use Rattle.book.specs.Blocks.{check_holds, check_sum};
ghost use Rattle.book.specs.Answers.{seal_answer, seal_bytes};
ghost use Rattle.book.specs.Inner.Reading.{RowSum, SumsTo};

use crate::Refusal;
use crate::bytes::{byte_at, part};
use crate::testing::{ensure, zeros};

/// How many bytes of a block its check has to sum: zeros add nothing, and most blocks have nothing else
/// from byte 128 on.
fn summed(block: &[u8]) -> usize
    ensures { SumsTo block.now result }
{
    if zeros(block, 128, 510) {
        return 128;
    }
    510
}

/// The sum of (i + 1) times byte i over the whole rows of sixteen bytes, with no product for a byte:
/// down each column `bytes` adds up its bytes and `sums` adds up these sums, so that a byte counts
/// there once for its own row and once for each row after it.
fn row_sum(body: &[u8]) -> u32
    ensures { RowSum body.now result }
{
    let rows = body.len() / 16;
    if 32 < rows {
        return 0;
    }
    let mut bytes = [0u32; 16];
    let mut sums = [0u32; 16];
    for r in 0..rows {
        // By index: two arrays go in step.
        for j in 0..16usize {
            let total = bytes[j] + body[16 * r + j] as u32;
            bytes[j] = total;
            sums[j] = sums[j] + total;
        }
    }
    let mut sum = 0u32;
    // By index, as above. `as`, here and below: `u32` has no `From<usize>`.
    for j in 0..16usize {
        sum = sum + ((16 * rows + 1 + j) as u32) * bytes[j] - 16 * sums[j];
    }
    sum
}

/// The sum of (i + 1) times byte i over the first 510 bytes, modulo 65,521.
pub fn check_sum(block: &[u8]) -> u32
    ensures { (result ≡ check_sum block.now) × (result < 65521) }
{
    let body = part(block, 0, summed(block));
    let mut sum = row_sum(body);
    for i in 16 * (body.len() / 16)..body.len() {
        sum += (i as u32 + 1) * u32::from(body[i]);
    }
    sum % 65521
}

/// Whether bytes 510 and 511 hold the check, high byte first.
#[tactic(auto, unfolding(crate::specs::Blocks::check_holds))]
pub fn check_holds(block: &[u8]) -> bool
    ensures { result ≡ check_holds block.now }
{
    let stored = 256 * u32::from(byte_at(block, 510)) + u32::from(byte_at(block, 511));
    stored == check_sum(block)
}

#[tactic(auto, using(crate::proofs::Seals::set_two), unfolding(crate::specs::Tests::first_failing, crate::specs::Tests::answered, crate::specs::Tests::refused_or, crate::specs::Refusals::seal_tests, crate::specs::Answers::seal_answer, crate::specs::Answers::seal_bytes, crate::specs::Answers::with_check))]
/// Seal: writes the check of a block of 512 bytes and leaves its other bytes as they were. Any other
/// length is refused, and nothing is written.
pub fn seal(block: &mut [u8]) -> Result<(), Refusal>
    ensures answer { result ≡ seal_answer block.old }
    ensures bytes { block.new ≡ seal_bytes block.old }
{
    ensure(block.len() == 512, Refusal::BlockLength)?;
    let check = check_sum(block);
    block[510] = (check / 256) as u8;
    block[511] = (check % 256) as u8;
    Ok(())
}
