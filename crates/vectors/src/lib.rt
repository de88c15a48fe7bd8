// Streams in files, with what must come of them.
#![tactic(auto)]

ghost use Rattle.std.specs.Prelude.{◌≡◌, ◌≢◌, true, false, IfOk, MatchOption};
ghost use Rattle.vectors.specs.Judging.{AsExpected};

use std::{env, fmt, fs};

// A stream, and what must come of it.
#[derive(Drop)]
pub struct Vector {
    pub name: String,
    pub input: Vec<u8>,
    pub expected: Vec<u8>,
}

impl Vector {
    // The files NAME.in and NAME.out.
    fn read(rt: &HostRuntime, name: String) -> anyhow::Result<Vector> {
        let heap = rt.alloc();
        let input = fs::read(rt, format!(in heap; "{name}.in")?)?;
        let expected = fs::read(rt, format!(in heap; "{name}.out")?)?;
        Ok(Vector {
            name,
            input,
            expected,
        })
    }

    // Whether what came is as expected; says where it is not, with the way in which it came.
    pub fn judge<W: fmt::Display + Drop, E: fmt::Display + Drop>(
        &self,
        rt: &HostRuntime,
        way: W,
        came: Result<&[u8], E>,
    ) -> anyhow::Result<bool>
        ensures as_expected { IfOk result (λ good. good ≡ true → AsExpected came.entry self.now.expected.items) }
        ensures otherwise { IfOk result (λ good. good ≡ false → AsExpected came.entry self.now.expected.items → ⊥) }
    {
        let name = &self.name;
        match came.map(|bytes| difference(bytes, &self.expected)) {
            Ok(None) => return Ok(true),
            Ok(Some(at)) => println!(rt; "{name}{way}: differs at byte {at}")?,
            Err(e) => println!(rt; "{name}{way}: {e}")?,
        }
        Ok(false)
    }
}

// The vectors that the arguments name, each given to a check that says whether it holds.
pub fn check_all<F: FnMut(&Vector) -> anyhow::Result<bool>>(
    rt: &HostRuntime,
    mut check: F,
) -> anyhow::Result<()>
    requires { F.IsAlwaysCallable check }
{
    for name in env::args(rt)?.skip(1) {
        let vector = Vector::read(rt, name)?;
        if check(&vector)? {
            println!(rt; "{} ok", vector.name)?;
        }
    }
    Ok(())
}

// The first place where two rows of bytes differ.
fn difference(a: &[u8], b: &[u8]) -> Option<usize>
    ensures { MatchOption result (a.now ≡ b.now) (λ at. a.now ≢ b.now) }
{
    if a == b {
        return None;
    }
    let end = a.len().min(b.len());
    Some(a.iter().zip(b).position(|(x, y)| x != y).unwrap_or(end))
}
