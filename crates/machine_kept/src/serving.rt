//! The requests to a machine that is kept, by number.

ghost use Rattle.std.specs.Prelude.{◌≡◌};
ghost use Rattle.machine_kept.specs.Served as served;
ghost use Rattle.machine_kept.specs.Served.{Serves, Answers};

use crate::kept::Kept;

/// A request to a machine.
#[derive(Clone, Copy)]
pub enum Request {
    File,
    Load,
    Input,
    Close,
    Run,
    Detail,
    Steps,
    Output,
    Register,
    SetRegister,
    Read,
    Write,
}

/// The answer to a number that denotes no request.
const NO_REQUEST: u64 = 256;

/// The request with this number.
pub fn request_of(number: u32) -> Option<Request>
    ensures { result ≡ served.request_of number }
{
    match number {
        0 => Some(Request::File),
        1 => Some(Request::Load),
        2 => Some(Request::Input),
        3 => Some(Request::Close),
        4 => Some(Request::Run),
        5 => Some(Request::Detail),
        6 => Some(Request::Steps),
        7 => Some(Request::Output),
        8 => Some(Request::Register),
        9 => Some(Request::SetRegister),
        10 => Some(Request::Read),
        11 => Some(Request::Write),
        _ => None,
    }
}

impl Kept {
    /// Serves the request with this number; returns 256 where there is none.
    pub fn serve(&mut self, number: u32, a: u64, b: u64) -> u64
        ensures { Answers number a b self.old result self.new }
    {
        match request_of(number) {
            Some(request) => self.answer(request, a, b),
            None => NO_REQUEST,
        }
    }

    fn answer(&mut self, request: Request, a: u64, b: u64) -> u64
        ensures { Serves request a b self.old result self.new }
    {
        match request {
            Request::File => self.take_file(a),
            Request::Load => self.load_file(),
            Request::Input => self.take_input(a),
            Request::Close => self.close_input(),
            Request::Run => self.run(a, b),
            Request::Detail => self.detail(),
            Request::Steps => self.steps(),
            Request::Output => self.take_output(),
            Request::Register => self.register(a),
            Request::SetRegister => self.set_register(a, b),
            Request::Read => self.read(a),
            Request::Write => self.write(a, b),
        }
    }
}
