// An easing: its name, and its parameters behind it.
use easing::{Easing, Params, params_of};
use lines::{Expected, Line, Mistake};

// The parameters that its kind has are 1, the others 0.
fn had(easing: Easing) -> Params {
    params_of(Easing::of_number(easing.kind_number(), Params::new(1.0, 1.0, 1.0, 1.0, 1)))
}

// How many of its kind's parameters are decimals. They stand in a, b, c, d, in this order.
pub fn decimals(easing: Easing) -> usize {
    let p = had(easing);
    [p.a, p.b, p.c, p.d].iter().filter(|x| **x > 0.0).count()
}

// Whether the last parameter of its kind is a whole number.
pub fn has_count(easing: Easing) -> bool {
    had(easing).count > 0
}

// The parameters of an easing of this kind.
fn read_parameters(kind: Easing, line: &mut Line<'_>) -> Result<Params, Mistake> {
    let mut numbers = [0.0f32; 4];
    for x in numbers.iter_mut().take(decimals(kind)) {
        *x = line.value()?;
    }
    let count = if has_count(kind) { line.count()? } else { 0 };
    let [a, b, c, d] = numbers;
    Ok(Params::new(a, b, c, d, count))
}

pub fn read_easing(line: &mut Line<'_>) -> Result<Easing, Mistake> {
    let word = line.word();
    let name = word.bytes(line.text);
    let named = Easing::all_named()
        .into_iter()
        .find(|e| names::easing(*e).as_bytes() == name);
    let kind = named.ok_or(Mistake::new(word, Expected::Easing))?;
    let parameters = read_parameters(kind, line)?;
    Ok(Easing::of_number(kind.kind_number(), parameters))
}
