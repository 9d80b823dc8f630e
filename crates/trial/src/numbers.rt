//! Decimal numbers in a text: at most five, with spaces or line ends between them.
ghost use Rattle.std.specs.Prelude.{◌^◌, ◌<◌};

/// Those that there are, then `None`.
#[derive(Clone, Copy)]
pub struct Numbers([Option<u32>; 5]);

// `parse` takes a sign, and a case has none.
fn number(digits: &[u8]) -> Option<u32> {
    if digits.starts_with(b"+") {
        return None;
    }
    str::from_utf8(digits).ok()?.parse().ok()
}

/// The numbers of a text; `None` where there are more than five, or something else than numbers.
pub fn read(text: &[u8]) -> Option<Numbers> {
    let mut words = text
        .split(|byte| *byte <= b' ')
        .filter(|word| !word.is_empty());
    let mut found = [None; 5];
    for place in &mut found {
        let Some(word) = words.next() else {
            break;
        };
        *place = Some(number(word)?);
    }
    match words.next() {
        Some(_) => None,
        None => Some(Numbers(found)),
    }
}

impl Numbers {
    /// Whether there are at least and at most so many.
    pub fn within(&self, least: usize, most: usize) -> bool {
        let count = self.0.iter().flatten().count();
        (least..=most).contains(&count)
    }

    /// Number i, or the other one where there is none.
    pub fn or(&self, i: usize, other: u32) -> u32 {
        self.0.get(i).copied().flatten().unwrap_or(other)
    }

    /// Number i; 0 where there is none.
    pub fn number(&self, i: usize) -> u32 {
        self.or(i, 0)
    }

    /// Number i as a length or an index, or the other one where there is none.
    pub fn length(&self, i: usize, other: u32) -> usize
        ensures { result < 2 ^ 32 }
    {
        // no plainer without `as`: `usize` has no `From<u32>`
        self.or(i, other) as usize
    }
}

/// Reads what stands between commas and has each part change what is lent, also after one that is malformed.
/// Where nothing is written nothing changes. Answers whether all of it is well formed.
// The requires: a closure's type does not say that it may be called.
pub fn each<T, F: Fn(&mut T, &Numbers) -> bool>(text: &[u8], lent: &mut T, change: F) -> bool
    requires { F.IsAlwaysCallable change }
{
    let mut sound = true;
    for part in text.split(|byte| *byte == b',') {
        sound &= match read(part) {
            Some(numbers) => numbers.within(0, 0) || change(lent, &numbers),
            None => false,
        };
    }
    sound
}
