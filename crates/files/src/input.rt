// What was read of a file, or a line on standard error that names the program, the file and what went wrong.
ghost use Rattle.std.specs.Prelude.{◌≡◌, IsErr, MatchResult};

use anyhow::anyhow;
use show::cut::CutText;
use std::io;
use wire::frames::CutShort;

// Hands on what was read of a file; where it could not be read, says so and fails.
pub fn contents(
    rt: &HostRuntime,
    program: &str,
    path: &str,
    read: io::Result<Vec<u8>>,
) -> anyhow::Result<Vec<u8>>
    ensures { MatchResult read (λ bytes. result ≡ Ok bytes) (λ _. IsErr result) }
{
    // a `match`, since what an error prints may fail, too
    match read {
        Ok(bytes) => Ok(bytes),
        Err(e) => {
            eprintln!(rt; "{program}: {path}: {e}")?;
            Err(anyhow!("unreadable"))
        }
    }
}

// Says where a recording is cut, and fails.
pub fn cut_short(rt: &HostRuntime, program: &str, short: CutShort) -> anyhow::Result<()>
    ensures { IsErr result }
{
    let text = CutText(short);
    eprintln!(rt; "{program}: {text}")?;
    Err(anyhow!("cut"))
}
