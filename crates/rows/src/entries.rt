// Words of the list, and the floats in them.
ghost use Rattle.std.specs.Prelude.{◌≡◌, ◌≤◌, take};
ghost use Rattle.words.specs.Lent.{word_at, float_at};
ghost use Rattle.rows.specs.Words.{word_of, empty_row, put_of, Rest, Tells};

// The word at a place; 0 behind the last.
pub fn word(words: [u32; 1024], at: usize) -> u32
    ensures { result ≡ word_at words at }
{
    if at < 1024 { words[at] } else { 0 }
}

// Every NaN reads alike.
pub fn float_at(words: [u32; 1024], at: usize) -> f32
    ensures { result ≡ float_at words at }
{
    math::of_bits(word(words, at))
}

// The pattern of a float. A zero of either sign is written as +0, and every NaN alike.
pub fn float_word(x: f32) -> u32
    ensures { result ≡ word_of x }
{
    if x == 0.0 {
        return 0;
    }
    math::bits(x)
}

// Words one behind the other: the first count of the list, which has a fixed size since there is no heap. Behind
// them it is 0.
#[derive(Clone, Copy)]
pub struct Row {
    pub list: [u32; 1024],
    pub count: usize,
}

impl Row {
    pub fn empty() -> Row
        ensures { result ≡ empty_row }
    {
        Row {
            list: [0; 1024],
            count: 0,
        }
    }

    // One word more. A word that finds no room is left out.
    pub fn put(self, w: u32) -> Row
        ensures { result ≡ put_of self w }
    {
        let mut q = self;
        let n = q.count;
        if n < 1024 {
            q.list[n] = w;
            q.count = n + 1;
        }
        q
    }

    pub fn put_float(self, x: f32) -> Row
        ensures { result ≡ put_of self (word_of x) }
    {
        self.put(float_word(x))
    }
}

// Whether the words from a place on are the first n of out.
pub fn is_rest(words: &[u32], from: usize, out: &[u32], n: usize) -> bool
    ensures { Tells result (Rest words.now from out.now n) }
{
    match (words.get(from..), out.get(..n)) {
        (Some(rest), Some(first)) => rest == first,
        _ => false,
    }
}

// Whether the first count words, from a place on, are the answer.
pub fn is_answer(words: [u32; 1024], count: usize, from: usize, answer: Row) -> bool
    ensures { Tells result ((count ≤ 1024) × Rest (take count words) from answer.list answer.count) }
{
    if 1024 < count {
        return false;
    }
    is_rest(&words[..count], from, &answer.list, answer.count)
}
