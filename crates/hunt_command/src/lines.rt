//! The lines of a text that somebody wrote.

ghost use Rattle.std.specs.Prelude.{◌≡◌};
ghost use Rattle.hunt_command.specs.Lines.{without_return};

/// A line without the carriage return at its end.
pub fn without_return(line: &[u8]) -> &[u8]
    ensures { result.now ≡ without_return line.now }
{
    if line.is_empty() {
        return line;
    }
    let last = line.len() - 1;
    if line[last] == b'\r' {
        &line[..last]
    } else {
        line
    }
}
