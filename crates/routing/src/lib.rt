// What a record is before its replica is looked for, and the index that it looks at. specs/ has the model of what an observed record
// does to the state, proofs/ its ties to the definition.
#![tactic(auto)]

ghost use Rattle.std.specs.Prelude.{◌≡◌, ◌<◌};
ghost use Rattle.definition.specs.Table.{first_of};
ghost use Rattle.ids.specs.Refusal.{checked_of};
ghost use Rattle.storage.specs.Model.{scan_next};
ghost use Rattle.routing.specs.Observe.{scan_rows};
ghost use Rattle.routing.specs.Admits.{Admitted, index_in};

use codec::{RaftWalRecord, WalRecord};
use ids::{Lsn, Refusal};
use storage::Scan;

// One more record was scanned.
fn scan_next(scan: Scan, lsn: Lsn) -> Scan
    requires { scan.scanned_records < 18446744073709551615 }
    ensures { result ≡ scan_next scan lsn }
{
    Scan {
        scanned_records: scan.scanned_records + 1,
        last_scanned_lsn: Some(lsn),
    }
}

// Whether a record may be scanned (1, where the count is at its end; 2).
fn check_scan(scan: Scan, lsn: Lsn) -> Result<(), Refusal>
    ensures { checked_of result ≡ first_of (scan_rows scan lsn) }
{
    if u64::MAX <= scan.scanned_records {
        return Err(Refusal::Unsound);
    }
    match scan.last_scanned_lsn {
        Some(last) if lsn <= last => Err(Refusal::NonIncreasingWalLsn),
        _ => Ok(()),
    }
}

// What a record is before its replica is looked for, with the scan that counts it. A refusal may come with or without that scan, so
// as Results one within the other it is no plainer.
#[derive(Clone, Copy, Debug, PartialEq, Eq)]
pub enum Admission {
    Refused(Refusal),
    Counted(Scan),
    Malformed(Scan, Refusal),
    Raft(Scan, RaftWalRecord),
}

// A record of no Raft kind is counted and goes no further; a replica's is refused for its form, or goes to its replica.
pub fn admit(scan: Scan, r: WalRecord, lent: &[u8]) -> Admission
    ensures { Admitted result scan r lent.now }
{
    if let Err(why) = check_scan(scan, r.lsn) {
        return Admission::Refused(why);
    }
    let next = scan_next(scan, r.lsn);
    let Some(kind) = r.body else {
        return Admission::Counted(next);
    };
    if let Err(why) = codec::validate_form(kind, lent) {
        return Admission::Malformed(next, why);
    }
    Admission::Raft(next, kind)
}

// The index that a record looks at.
pub fn index_of(r: WalRecord) -> u64
    ensures { result ≡ index_in r.body }
{
    match r.body {
        None => 0,
        Some(kind) => replay::index_of(kind),
    }
}
