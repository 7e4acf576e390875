// The numbers of a command.
use crate::answers::Fault;

// What stands before the first space and behind it.
pub fn split(text: &str) -> Result<(&str, &str), Fault> {
    text.split_once(" ").ok_or(Fault::Unknown)
}

// A number; one above the greatest of its type counts as the greatest.
pub fn number<T: TryFrom<u64> + Drop>(text: &str, greatest: T) -> Result<T, Fault>
where
    T::Error: Drop,
{
    Ok(T::try_from(text.parse::<u64>()?).unwrap_or(greatest))
}

// Two numbers with a space between.
pub fn two_numbers<T: TryFrom<u64> + Copy>(text: &str, greatest: T) -> Result<(T, T), Fault>
where
    T::Error: Drop,
{
    let (first, second) = split(text)?;
    Ok((number(first, greatest)?, number(second, greatest)?))
}
