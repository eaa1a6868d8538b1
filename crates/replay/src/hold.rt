// A frame held against the one before it.
ghost use Rattle.std.specs.Prelude.{◌≡◌};
ghost use Rattle.replay.specs.Trace.{held_against, next_frame};
ghost use Rattle.replay.specs.Answers.{of_frame, of_held};

use crate::error::ReplayError;
use step::State;

// Frame k stepped, and held against f, which is frame m. The first frame is held against nothing.
#[tactic(auto, using(crate::proofs::Turns::steps), unfolding(crate::specs::Trace::held_against))]
pub(crate) fn hold(
    image: &[u8],
    k: usize,
    m: usize,
    old: State,
    f: State,
) -> Result<State, ReplayError>
    ensures { of_held result ≡ held_against image.now k m old f }
{
    if k == 0 {
        return Ok(f);
    }
    match step::step(image, old) {
        Ok(got) => {
            if got == f {
                Ok(f)
            } else {
                Err(ReplayError::Differs(m))
            }
        }
        Err(stopped) => Err(ReplayError::Stopped {
            why: stopped.why,
            frame: k,
        }),
    }
}

// Line m, after k frames: one that is no frame stops the replay before the frame above it is stepped.
pub(crate) fn next_frame(
    image: &[u8],
    k: usize,
    m: usize,
    old: State,
    frame: Option<State>,
) -> Result<State, ReplayError>
    ensures { of_held result ≡ next_frame image.now k m old (of_frame frame) }
{
    let f = frame.ok_or(ReplayError::BadFrame(m))?;
    hold(image, k, m, old, f)
}
