// How a program ended, for the script that runs it: the program writes a digit to descriptor 3, and the script (`oat_check`) ends with that as its
// exit status. Where descriptor 3 is not open the digit is lost.
ghost use Rattle.std.specs.Prelude.{◌≡◌};
ghost use Rattle.input_output.specs.Digits.{status_of, digit_of};

// How a command ended.
#[derive(Clone, Copy, PartialEq, Eq)]
pub enum Status {
    // accepted
    Done,
    // refused
    Refused,
    // a file that cannot be read, or an output that fails, told on standard error
    Failed,
}

impl Status {
    // How a command ended whose answer has this number.
    pub fn of(number: u16) -> Status
        ensures { result ≡ status_of number }
    {
        if number == 0 {
            return Status::Done;
        }
        Status::Refused
    }
}

// The digit of a status.
fn digit(status: Status) -> u8
    ensures { result ≡ digit_of status }
{
    match status {
        Status::Done => b'0',
        Status::Refused => b'1',
        Status::Failed => b'2',
    }
}

// Tells the script how the command ended, and answers the digit that it told; that it is written no contract can say.
pub fn tell(status: Status) -> u8
    ensures { result ≡ digit_of status }
{
    let told = digit(status);
    io::write_all(3, &[told]);
    told
}
