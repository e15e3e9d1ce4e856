// Operands in a text. Inner.
ghost use Rattle.std.specs.Prelude.{◌≡◌};
ghost use Rattle.importer.specs.Coding.{coded_operand};
ghost use Rattle.importer.specs.Forms.{minus_read, operand_read, plain_read};

// Why a word has no bits.
#[derive(Clone, Copy, Debug, PartialEq, Eq)]
pub enum BadOperand {
    // Its number is beyond 24 bits.
    Beyond,
    // It has another form.
    Form,
}

// The greatest operand, and the size of the least.
const GREATEST: u64 = 8388607;

const LEAST: u64 = 8388608;

// So many operands there are.
const OPERANDS: u32 = 16777216;

fn read_plain(word: &[u8]) -> Result<u32, BadOperand>
    ensures { result ≡ coded_operand (plain_read word.now) }
{
    let n = digits::read_decimal(word).ok_or(BadOperand::Form)?;
    if GREATEST < n {
        return Err(BadOperand::Beyond);
    }
    Ok(n as u32)
}

// What follows a `-`.
fn read_minus(word: &[u8]) -> Result<u32, BadOperand>
    ensures { result ≡ coded_operand (minus_read word.now) }
{
    let n = digits::read_decimal(word).ok_or(BadOperand::Form)?;
    if n == 0 {
        return Err(BadOperand::Form);
    }
    if LEAST < n {
        return Err(BadOperand::Beyond);
    }
    Ok(OPERANDS - n as u32)
}

// An operand as its 24 bits.
pub fn read_operand(word: &[u8]) -> Result<u32, BadOperand>
    ensures { result ≡ coded_operand (operand_read word.now) }
{
    match word.strip_prefix(b"-") {
        Some(digits) => read_minus(digits),
        None => read_plain(word),
    }
}
