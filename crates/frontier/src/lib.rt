// How far a replica's log is truncated and applied, and when one progress may follow another (51 to 56).
#![tactic(auto, unfolding(definition::specs::Frontier::progress_rows, definition::specs::Frontier::validate_progress, definition::specs::Frontier::new_progress, definition::specs::Frontier::validate_progress_successor, definition::specs::Frontier::progress_successor_rows))]

ghost use Rattle.std.specs.Prelude.{◌≡◌};
ghost use Rattle.definition.specs.Frontier.{new_progress, validate_progress, validate_progress_successor};
ghost use Rattle.ids.specs.Refusal.{checked_of, result_of};
ghost use Rattle.frontier.specs.Progress.{progress_of};

use ids::Refusal;

// The last index that truncation removed, the term that stood there, and the last index applied.
#[derive(Clone, Copy, Debug, Default, PartialEq, Eq)]
pub struct RaftProgress {
    pub truncated_through_index: u64,
    pub truncated_through_term: u64,
    pub applied_index: u64,
}

impl RaftProgress {
    // A checked progress.
    pub fn new(
        truncated_through_index: u64,
        truncated_through_term: u64,
        applied_index: u64,
    ) -> Result<RaftProgress, Refusal>
        ensures { result_of progress_of result ≡ new_progress truncated_through_index truncated_through_term applied_index }
    {
        let progress = RaftProgress {
            truncated_through_index,
            truncated_through_term,
            applied_index,
        };
        progress.validate()?;
        Ok(progress)
    }

    // Index and term of the boundary are both zero or both not (51, 52), and the index is applied (53).
    pub fn validate(self) -> Result<(), Refusal>
        ensures { checked_of result ≡ validate_progress (progress_of self) }
    {
        if self.truncated_through_index == 0 {
            if self.truncated_through_term != 0 {
                return Err(Refusal::TermWithoutBoundary);
            }
        } else if self.truncated_through_term == 0 {
            return Err(Refusal::BoundaryWithoutTerm);
        }
        if self.applied_index < self.truncated_through_index {
            return Err(Refusal::TruncationBeyondApplied);
        }
        Ok(())
    }

    // Valid itself, and neither index falls (54, 55) nor the boundary's term changes (56). The previous one is not checked.
    pub fn validate_successor(self, previous: RaftProgress) -> Result<(), Refusal>
        ensures { checked_of result ≡ validate_progress_successor (progress_of self) (progress_of previous) }
    {
        self.validate()?;
        if self.truncated_through_index < previous.truncated_through_index {
            return Err(Refusal::TruncationRegression);
        }
        if self.applied_index < previous.applied_index {
            return Err(Refusal::AppliedRegression);
        }
        if self.truncated_through_index != previous.truncated_through_index {
            return Ok(());
        }
        if self.truncated_through_term != previous.truncated_through_term {
            return Err(Refusal::BoundaryTermChanged);
        }
        Ok(())
    }
}
