// The calls of an easing, lent as six words.
ghost use Rattle.std.specs.Prelude.{◌≡◌};
ghost use Rattle.capi.specs.Answers.{answering};
ghost use Rattle.capi.specs.Easings.{lax_easing_apply, lax_easing_eq, lax_easing_is_supplied, lax_easing_named};

#[unsafe(no_mangle)]
pub extern "C" fn lax_easing_apply(e: &[u32; 6], t: f32, out: &mut [u32; 4]) -> u32
    ensures { answering result out.new ≡ lax_easing_apply e.now t out.old }
{
    capi::lax_easing_apply(e, t, out)
}

#[unsafe(no_mangle)]
pub extern "C" fn lax_easing_eq(x: &[u32; 6], y: &[u32; 6], out: &mut u32) -> u32
    ensures { answering result out.new ≡ lax_easing_eq x.now y.now out.old }
{
    capi::lax_easing_eq(x, y, out)
}

#[unsafe(no_mangle)]
pub extern "C" fn lax_easing_is_supplied(e: &[u32; 6], out: &mut u32) -> u32
    ensures { answering result out.new ≡ lax_easing_is_supplied e.now out.old }
{
    capi::lax_easing_is_supplied(e, out)
}

// The easing at a place of all_named, from 0 to 37, with the source's parameters.
#[unsafe(no_mangle)]
pub extern "C" fn lax_easing_named(place: u32, out: &mut [u32; 6]) -> u32
    ensures { answering result out.new ≡ lax_easing_named place out.old }
{
    capi::lax_easing_named(place, out)
}
