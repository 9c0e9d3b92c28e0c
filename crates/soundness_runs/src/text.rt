// Answers as text.
use ids::Refusal;
use replay::Observation;
use tables::Output;

// All that is printed, at most 8,192 bytes.
pub type Lines = Output<8192>;

// Text, where there is room for more than that.
pub fn put(out: &mut Lines, text: &str) {
    let bytes = text.as_bytes();
    if bytes.len() < out.room() {
        out.put(bytes);
    }
}

// A number, where there is room for more than that.
pub fn put_number(out: &mut Lines, n: u64) {
    let mut digits = [0; 20];
    let k = io::decimal(n, &mut digits);
    if k < out.room() {
        out.put(&digits[..k]);
    }
}

// Whether a state is sound, and the end of the line.
pub fn put_sound(out: &mut Lines, sound: bool) {
    put(out, if sound { " sound yes\n" } else { " sound no\n" });
}

// What was asked, and the word for an answer that is no refusal or, behind `refused`, the refusal's number.
pub fn answer<T>(
    out: &mut Lines,
    asked: &str,
    accepted: &str,
    refused: &str,
    answer: &Result<T, Refusal>,
) {
    put(out, asked);
    match answer {
        Ok(_) => put(out, accepted),
        Err(why) => {
            put(out, refused);
            put_number(out, why.number());
        }
    }
}

// The answer to a record: what it did, or its refusal.
pub fn observed(out: &mut Lines, asked: &str, refused: &str, done: &Result<Observation, Refusal>) {
    let word = match done {
        Ok(Observation::Counted) => "counted",
        Ok(Observation::Appended) => "appended",
        Ok(Observation::IdempotentReplay) => "repeated",
        Ok(Observation::ReplacedSuffix(_)) => "replaced",
        Ok(Observation::HardStateKept | Observation::PointerKept(_)) | Err(_) => "kept",
    };
    answer(out, asked, word, refused, done);
}
