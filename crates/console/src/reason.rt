// Why a call to the system failed, in words.
use std::alloc::{AllocError, Global};
use std::io;

// The system's text of an error, without its number, which stands behind the text.
fn reason_text(alloc: Global, error: io::Error) -> Result<String, AllocError> {
    let text = format!(in alloc; "{error}")?;
    match text.as_str().split_once(" (os error ") {
        Some((reason, _)) => String::from_str(alloc, reason),
        None => Ok(text),
    }
}

// Writes a line to standard error: what failed, as the caller names it, a colon and the reason. Where memory fails the
// error's number is told too.
pub fn fail(rt: HostRuntime, what: &[u8], error: io::Error) {
    let errors = rt.stderr();
    let _ = errors.write_all(what);
    let _ = errors.write_all(b": ");
    match reason_text(rt.alloc(), error) {
        Ok(reason) => {
            let _ = errors.write_all(reason.as_bytes());
        }
        Err(_) => {
            let _ = errors.print(error);
        }
    }
    let _ = errors.write_all(b"\n");
}
