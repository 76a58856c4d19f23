//! Numbers of a text in the fields of a table.
ghost use Rattle.std.specs.Prelude.{◌≡◌, ◌+◌, IfOk};
ghost use Rattle.idl_names.specs.Declarators.{value_of};

use idl_tree::Num;
use rpc_base::NoMemory;

/// The number in 16 bits.
///
/// # Errors
///
/// `NoMemory` where it has no room there, as for each of these: no interface that keeps the rules has
/// such a number.
pub fn in_16(number: u64) -> Result<u16, NoMemory>
    ensures { IfOk result (λ n. n ≡ number) }
{
    if number < 65_536 {
        Ok(number as u16)
    } else {
        Err(NoMemory)
    }
}

/// The number in 32 bits.
pub fn in_32(number: u64) -> Result<u32, NoMemory>
    ensures { IfOk result (λ n. n ≡ number) }
{
    if number < 4_294_967_296 {
        Ok(number as u32)
    } else {
        Err(NoMemory)
    }
}

/// The number in 64 bits, with its sign.
pub fn signed_64(number: Num) -> Result<i64, NoMemory>
    ensures { IfOk result (λ n. n ≡ value_of number) }
{
    if number.minus {
        if number.value < 1 << 63 {
            Ok(-(number.value as i64))
        } else if number.value == 1 << 63 {
            Ok(i64::MIN)
        } else {
            Err(NoMemory)
        }
    } else if number.value < 1 << 63 {
        Ok(number.value as i64)
    } else {
        Err(NoMemory)
    }
}

/// The number and a little more, in 32 bits.
pub fn sum_32(number: u64, plus: u8) -> Result<u32, NoMemory>
    ensures { IfOk result (λ n. n ≡ number + plus) }
{
    if number > 4_294_967_295 {
        return Err(NoMemory);
    }
    in_32(number + u64::from(plus))
}
