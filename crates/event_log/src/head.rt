// What a log begins with.
ghost use Rattle.std.specs.Prelude.{◌≡◌, drop};
ghost use Rattle.event_log.specs.Format.{mark, version, starts_with};

pub fn has_mark(log: &[u8]) -> bool
    ensures { result ≡ starts_with mark log.now }
{
    log.starts_with(b"PEL")
}

pub fn has_version(log: &[u8]) -> bool
    ensures { result ≡ starts_with version (drop 3 log.now) }
{
    if log.len() < 3 {
        return false;
    }
    log[3..].starts_with(&[1, 0])
}
