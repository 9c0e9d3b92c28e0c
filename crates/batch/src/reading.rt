// The batch behind a journal, to the end of the input or to the first line that cannot be read.
use arrayvec::ArrayVec;
use batch_text::{BatchLine, Given, MAX_SHOWS};
use ids::RaftReplicaIdentity;
use journal::input::Source;

// What was asked.
#[derive(Drop)]
pub struct Asked {
    pub finish: bool,
    pub identity: RaftReplicaIdentity,
    pub given: Given,
}

// The indices whose commands are to be shown.
pub type Shows = ArrayVec<u64, MAX_SHOWS>;

// The index of a `show` goes behind the others.
fn keep_show(shows: &mut Shows, l: BatchLine) {
    if let BatchLine::Show(index) = l {
        if !shows.is_full() {
            shows.push(index);
        }
    }
}

// The lines from number `line` on, or the number of the one that cannot be read. A proved loop has to end: turns are counted down from a
// number that no run uses up.
fn read_lines(
    source: &mut Source,
    line: u64,
    lens: &[u8],
    shows: &mut Shows,
) -> Result<Given, u64> {
    let mut given = Given::none();
    for turn in 0..u64::MAX {
        let Some(read) = source.next_line() else {
            break;
        };
        let number = line.wrapping_add(turn);
        let l = batch_text::batch_line(&read, lens).ok_or(number)?;
        given = given.with_line(l).ok_or(number)?;
        keep_show(shows, l);
    }
    Ok(given)
}

// The lines behind a journal, of which the first has the number `line`: whether to finish, whose batch it is, and its lines; or the
// number of the first that cannot be read.
pub fn read_batch(
    source: &mut Source,
    line: u64,
    lens: &[u8],
    shows: &mut Shows,
) -> Result<Asked, u64> {
    let first = source.next_line().ok_or(line)?;
    let finish = batch_text::finish_of(&first).ok_or(line)?;
    let second = line.wrapping_add(1);
    let owner = source.next_line().ok_or(second)?;
    let identity = batch_text::identity_of(&owner).ok_or(second)?;
    let given = read_lines(source, line.wrapping_add(2), lens, shows)?;
    Ok(Asked {
        finish,
        identity,
        given,
    })
}
