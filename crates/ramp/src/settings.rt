// The settings of a ramp.
use crate::easings::read_easing;
use easing::Easing;
use lines::{Expected, Line, Mistake, Word};
use loop_mode::Loop;
use tween::Tween;

// Those that were given.
#[derive(Clone, Copy, Default)]
pub struct Settings {
    start: Option<f32>,
    end: Option<f32>,
    duration: Option<f32>,
    delay: Option<f32>,
    scale: Option<f32>,
    mode: Option<Loop>,
    easing: Option<Easing>,
}

fn read_mode(line: &mut Line<'_>) -> Result<Loop, Mistake> {
    let word = line.word();
    match word.bytes(line.text) {
        b"Once" => Ok(Loop::Once),
        b"Times" => Ok(Loop::Times(line.count()?)),
        b"Forever" => Ok(Loop::Forever),
        b"PingPong" => Ok(Loop::PingPong),
        b"PingPongTimes" => Ok(Loop::PingPongTimes(line.count()?)),
        _ => Err(Mistake::new(word, Expected::Mode)),
    }
}

// Gives a setting what stands behind its name, once.
fn give<T: Drop, F: FnOnce(&mut Line<'_>) -> Result<T, Mistake>>(
    setting: &mut Option<T>,
    name: Word,
    line: &mut Line<'_>,
    read: F,
) -> Result<(), Mistake>
    requires { F.IsAlwaysCallable read }
{
    if setting.is_some() {
        return Err(Mistake::new(name, Expected::NewSetting));
    }
    *setting = Some(read(line)?);
    line.end()
}

impl Settings {
    // Takes the setting that a line gives, if it gives one.
    pub fn take(&mut self, mut line: Line<'_>) -> Result<(), Mistake> {
        let name = line.word();
        if name.is_missing() {
            return Ok(());
        }
        match name.bytes(line.text) {
            b"start" => give(&mut self.start, name, &mut line, |l| l.value()),
            b"end" => give(&mut self.end, name, &mut line, |l| l.value()),
            b"duration" => give(&mut self.duration, name, &mut line, |l| l.value()),
            b"delay" => give(&mut self.delay, name, &mut line, |l| l.value()),
            b"scale" => give(&mut self.scale, name, &mut line, |l| l.value()),
            b"mode" => give(&mut self.mode, name, &mut line, read_mode),
            b"easing" => give(&mut self.easing, name, &mut line, read_easing),
            _ => Err(Mistake::new(name, Expected::Setting)),
        }
    }

    // What has to be given was given, before a text's end.
    pub fn tween(self, text_end: Word) -> Result<Tween, Mistake> {
        let start = self.start.ok_or(Mistake::new(text_end, Expected::Start))?;
        let end = self.end.ok_or(Mistake::new(text_end, Expected::End))?;
        let duration = self
            .duration
            .ok_or(Mistake::new(text_end, Expected::Duration))?;
        Ok(Tween {
            duration,
            easing: self.easing.unwrap_or(Easing::Linear),
            delay: self.delay.unwrap_or(0.0),
            time_scale: self.scale.unwrap_or(1.0),
            looping: self.mode.unwrap_or(Loop::Once),
            ..Tween::new(start, end)
        })
    }
}
