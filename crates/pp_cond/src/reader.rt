//! Reading a condition token by token (ISO/IEC 9899:2011 6.6, 6.5).
ghost use Rattle.std.specs.Prelude.{◌≡◌, ◌∷◌, true, Some, None, IfOk, IfErr, OnOk};
ghost use Rattle.srcset.specs.declared.refusal.Refusal.TheVariants.{Memory};
ghost use Rattle.pp_cond.specs.inside.Operands.{known_of, known_option};
ghost use Rattle.pp_cond.specs.inside.Reading.{Closed, State, wait_of, waits_of, state_of, start, closed, wanted, followed, separated, parenthesis_closed, behind, step, ended, IsStep};

use crate::constants::constant;
use crate::frame::Frame;
use crate::operand::Operand;
use crate::operators::{Role, opens, prefix_of, role_of};
use phases::PpToken;
use srcset::Refusal;
use std::alloc::Global;

/// A condition of which some tokens are read. It keeps the frames that wait for operands, with only the types and values of
/// these, so that its depth costs no stack of the host.
#[derive(Drop)]
pub struct Reader {
    /// The newest last.
    frames: Vec<Frame>,
    /// The operand just read.
    operand: Option<Operand>,
}

// Ends the waiting frames that a token with this bound after the operand ends; the result is the operand then.
fn close(frames: &mut Vec<Frame>, bound: u8, operand: Operand) -> Operand
    ensures { closed bound (waits_of frames.old.items) (known_of operand) ≡ record { waiting = waits_of frames.new.items; operand = known_of result } }
{
    let mut operand = operand;
    while let Some(frame) = frames.last() {
        let frame = *frame;
        if !frame.closes(bound) {
            return operand;
        }
        operand = frame.combined(operand);
        frames.pop();
    }
    operand
}

impl Reader {
    /// Nothing is read.
    pub(crate) fn new(alloc: Global) -> Reader
        ensures { state_of result ≡ start }
    {
        Reader {
            frames: Vec::new(alloc),
            operand: None,
        }
    }

    // Waits with a frame for the next operand.
    fn wait(&mut self, frame: Frame) -> Result<(), Refusal>
        ensures ok { OnOk result (state_of self.new ≡ record { waiting = wait_of frame ∷ waits_of self.old.frames.items; operand = None }) }
        ensures err { IfErr result (λ refusal. refusal ≡ Memory) }
    {
        self.frames.push(frame)?;
        self.operand = None;
        Ok(())
    }

    // Takes a token where an operand is wanted.
    fn take_wanted(&mut self, token: &PpToken) -> Result<bool, Refusal>
        ensures ok { IfOk result (λ taken. IsStep taken (wanted (waits_of self.old.frames.items) token.now) (state_of self.new)) }
        ensures err { IfErr result (λ refusal. refusal ≡ Memory) }
    {
        if let Some(operator) = prefix_of(token.spelling()) {
            self.wait(Frame::Prefix(operator))?;
            return Ok(true);
        }
        if opens(token.spelling()) {
            self.wait(Frame::Open)?;
            return Ok(true);
        }
        let Some(operand) = constant(token) else {
            return Ok(false);
        };
        self.operand = Some(operand);
        Ok(true)
    }

    // Takes a `:` after an operand.
    fn take_colon(&mut self, operand: Operand) -> Result<bool, Refusal>
        ensures ok { IfOk result (λ taken. IsStep taken (separated (waits_of self.old.frames.items) (known_of operand)) (state_of self.new)) }
        ensures err { IfErr result (λ refusal. refusal ≡ Memory) }
    {
        let Some(frame) = self.frames.pop() else {
            return Ok(false);
        };
        match frame {
            Frame::Asked(condition) => {
                self.wait(Frame::Otherwise(condition, operand))?;
                Ok(true)
            }
            _ => Ok(false),
        }
    }

    // Takes a `)` after an operand.
    fn take_close(&mut self, operand: Operand) -> bool
        ensures { IsStep result (parenthesis_closed (waits_of self.old.frames.items) (known_of operand)) (state_of self.new) }
    {
        let Some(frame) = self.frames.pop() else {
            return false;
        };
        match frame {
            Frame::Open => {
                self.operand = Some(operand);
                true
            }
            _ => false,
        }
    }

    // Takes a token after an operand.
    fn take_behind(&mut self, operand: Operand, token: &PpToken) -> Result<bool, Refusal>
        ensures ok { IfOk result (λ taken. IsStep taken (behind (waits_of self.old.frames.items) (known_of operand) token.now) (state_of self.new)) }
        ensures err { IfErr result (λ refusal. refusal ≡ Memory) }
    {
        let role = role_of(token.spelling());
        let operand = close(&mut self.frames, role.bound(), operand);
        match role {
            Role::Infix { level, operator } => {
                self.wait(Frame::Left {
                    level,
                    operator,
                    operand,
                })?;
                Ok(true)
            }
            Role::Question => {
                self.wait(Frame::Asked(operand))?;
                Ok(true)
            }
            Role::Colon => self.take_colon(operand),
            Role::Close => Ok(self.take_close(operand)),
            Role::Nothing => Ok(false),
        }
    }

    /// Takes the next token. The result says whether a condition may continue with it.
    ///
    /// Fails only when out of memory.
    pub(crate) fn take(&mut self, token: &PpToken) -> Result<bool, Refusal>
        ensures ok { IfOk result (λ taken. IsStep taken (step (state_of self.old) token.now) (state_of self.new)) }
        ensures err { IfErr result (λ refusal. refusal ≡ Memory) }
    {
        match self.operand {
            None => self.take_wanted(token),
            Some(operand) => self.take_behind(operand, token),
        }
    }

    /// The whole condition, or `None` where it is none.
    pub(crate) fn end(&mut self) -> Option<Operand>
        ensures { known_option result ≡ ended (state_of self.old).waiting (state_of self.old).operand }
    {
        let Some(operand) = self.operand else {
            return None;
        };
        let operand = close(&mut self.frames, 11, operand);
        if self.frames.is_empty() {
            Some(operand)
        } else {
            None
        }
    }
}
