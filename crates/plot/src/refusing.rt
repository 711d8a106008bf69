// Where there is no picture: a line on standard error that says why, and one on standard output.
use refusal::Refusal;
use std::rt::HostRuntime;
use tools::STDERR_FILENO;

// The log changed while it was read.
pub fn unread(rt: &HostRuntime) {
    tools::say_argument(rt, STDERR_FILENO, 2);
    tools::say(STDERR_FILENO, b": cannot be read\n");
    tools::end_unreadable();
}

// A refusal of the file that an argument names.
pub fn refuse(rt: &HostRuntime, argument: usize, refusal: Refusal) {
    tools::say_argument(rt, STDERR_FILENO, argument);
    tools::say(STDERR_FILENO, b": refused ");
    tools::say_refusal(STDERR_FILENO, refusal.number());
    tools::say(STDERR_FILENO, b"\n");
    tools::end_refused(refusal.number());
}
