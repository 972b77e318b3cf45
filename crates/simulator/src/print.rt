// What the program prints, a line at a time. A line that cannot be written is lost, and the session goes on.
use tally::{Cut, Taken};

// The heading of a session's lines.
pub fn say_title<P: Print>(rt: &P) {
    let _ = println!(rt; "request call code");
}

// What was taken from the session, request `number` if it is one.
pub fn say_taken<P: Print>(rt: &P, number: u64, taken: Taken) {
    match taken {
        Ok(Some(line)) => {
            let _ = println!(rt; "{number} {line}");
        }
        Ok(None) => {}
        Err(Cut) => {
            let _ = println!(rt; "cut");
        }
    }
}
