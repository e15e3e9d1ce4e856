// The faults that stop a machine.
ghost use Rattle.std.specs.Prelude.{◌≡◌};
ghost use Rattle.machine.specs.Faults.{Names, number_of};

// Each stands for its number. 29 is no longer given: it stood for finalize of a thread that has not ended, and finalize
// now does nothing.
#[derive(Clone, Copy, Debug, PartialEq, Eq)]
pub enum Fault {
    // PC is past the card's last instruction.
    NoInstruction = 20,
    // Too few cells on the stack.
    StackUnderflow = 21,
    // No room on it.
    StackOverflow = 22,
    // No such cell, shared or of the frame.
    BadAddress = 23,
    // A number beyond 32 bits, or a zero divisor.
    Arithmetic = 24,
    // No such instruction for a call or a new thread.
    BadTarget = 25,
    // A frame that return can't go back from.
    BadFrame = 26,
    NoMutex = 27,
    // unlock or wait by another than the owner.
    NotOwner = 28,
    // new of fewer than 1, or a negative starting count.
    BadCount = 30,
    // The end of a thread that owns a mutex.
    StillOwner = 31,
    NoCondition = 32,
    NoThread = 33,
    NoSemaphore = 34,
}

impl Fault {
    pub fn number(self) -> usize
        ensures { result ≡ number_of self }
    {
        self as usize
    }
}

// A number that is no fault's.
#[derive(Clone, Copy, Debug, PartialEq, Eq)]
pub struct UnknownFault(pub usize);

impl TryFrom<usize> for Fault {
    type Error = UnknownFault;

    ghost try_from_gives = { Names };

    fn try_from(number: usize) -> Result<Self, UnknownFault> {
        match number {
            20 => Ok(Fault::NoInstruction),
            21 => Ok(Fault::StackUnderflow),
            22 => Ok(Fault::StackOverflow),
            23 => Ok(Fault::BadAddress),
            24 => Ok(Fault::Arithmetic),
            25 => Ok(Fault::BadTarget),
            26 => Ok(Fault::BadFrame),
            27 => Ok(Fault::NoMutex),
            28 => Ok(Fault::NotOwner),
            30 => Ok(Fault::BadCount),
            31 => Ok(Fault::StillOwner),
            32 => Ok(Fault::NoCondition),
            33 => Ok(Fault::NoThread),
            34 => Ok(Fault::NoSemaphore),
            _ => Err(UnknownFault(number)),
        }
    }
}
