// What a desk is shown, as the tests compare it.
use desk::failure::Failure;

// The text of a settled batch, or what is said of one that is not settled.
pub(crate) fn shown(settled: &Result<String, Failure>) -> Result<&str, &str> {
    match settled {
        Ok(text) => Ok(text.as_str()),
        Err(Failure::Said(message)) => Err(message.as_str()),
        Err(Failure::NoMemory) => Err("no memory"),
    }
}
