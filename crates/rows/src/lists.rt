// Lists that a call is lent: at most 128 places each.
ghost use Rattle.std.specs.Prelude.{◌≡◌, ℕ, ◌≤◌, ◌<◌, map, length};
ghost use Rattle.rows.specs.Words.{word_of, put_all};
ghost use Rattle.rows.specs.Lent.{length_at, mark_words, mark_floats, floats_at, count_word};

use crate::entries::{Row, float_at, float_word, word};

// What stands in a lent output before a call: 1e30, which no call writes.
const MARK: u32 = 0x7149_f2ca;

// A length among the words; 128 for one above.
pub fn length_at(words: [u32; 1024], at: usize) -> usize
    ensures { (result ≤ 128) × (result ≡ length_at words at) }
{
    (word(words, at) as usize).min(128)
}

pub fn marks() -> [f32; 128]
    ensures { (length result ≡ 128) × (result ≡ mark_floats) }
{
    [math::of_bits(MARK); 128]
}

pub fn mark_words() -> [u32; 128]
    ensures { (length result ≡ 128) × (result ≡ mark_words) }
{
    [MARK; 128]
}

pub fn floats_at(words: [u32; 1024], from: usize) -> [f32; 128]
    requires { from < 100 }
    ensures { (length result ≡ 128) × (result ≡ floats_at words from) }
{
    let mut list = [0.0f32; 128];
    for i in 0..128 {
        list[i] = float_at(words, from + i);
    }
    list
}

// What a list holds, as words.
pub trait AsWord {
    ghost word: { Self → ℕ };

    fn word(self) -> u32
        ensures { result ≡ word self };
}

impl AsWord for u32 {
    ghost word = { λ w. w };

    fn word(self) -> u32 {
        self
    }
}

impl AsWord for f32 {
    ghost word = { word_of };

    fn word(self) -> u32 {
        float_word(self)
    }
}

pub fn put_list<T: AsWord + Copy>(before: Row, list: &[T]) -> Row
    ensures { result ≡ put_all before (map T.word list.now) }
{
    let mut p = before;
    for x in list {
        p = p.put(x.word());
    }
    p
}

pub fn count_word(n: usize) -> u32
    ensures { result ≡ count_word n }
{
    n.min(0xffff_ffff) as u32
}
