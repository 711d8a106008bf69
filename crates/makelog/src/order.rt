// One line of a script.
use event_log::Event;
use lines::{Expected, Line, Mistake};

#[derive(Clone, Copy)]
pub enum Order {
    // A line of no words.
    Nothing,
    // So many records of an event.
    Write(Event, u32),
    Drop(u32),
    Repeat(u32),
}

fn read_step(line: &mut Line<'_>) -> Result<Order, Mistake> {
    let step = Event::Step(line.value()?);
    let mut rest = *line;
    if rest.word().is_missing() {
        return Ok(Order::Write(step, 1));
    }
    Ok(Order::Write(step, line.count()?))
}

// What a line asks for.
pub fn read_order(mut line: Line<'_>) -> Result<Order, Mistake> {
    let word = line.word();
    if word.is_missing() {
        return Ok(Order::Nothing);
    }
    let order = match word.bytes(line.text) {
        b"step" => read_step(&mut line)?,
        b"pause" => Order::Write(Event::Pause, 1),
        b"resume" => Order::Write(Event::Resume, 1),
        b"reset" => Order::Write(Event::Reset, 1),
        b"drop" => Order::Drop(line.count()?),
        b"repeat" => Order::Repeat(line.count()?),
        _ => return Err(Mistake::new(word, Expected::Event)),
    };
    line.end()?;
    Ok(order)
}
