// The search for the coarsest step that passes (document 02, P13): what is tried next, whether to go on, and what is answered. What a trial is, the caller knows.
// No function here is a public call: `coarsest` calls `find_coarsest`, and a test program with a stand-in for a trial; a caller that makes its trials one at a time carries a `Search`.
#![tactic(auto)]

ghost use Rattle.std.specs.Prelude.{◌≡◌, ◌≤◌, ◌<◌, ℕ, Bool};
ghost use Rattle.step_search.specs.Search.{sure, found};
ghost use Rattle.step_search.specs.Progress.{begun, unfinished, behind, stopped, ended, Tells};

// The coarsest step of all.
const TOP: u32 = 1024;

// A search under way: the sure step, the step that is tried next, the trials made, and how many more may be made.
#[derive(Clone, Copy)]
pub struct Search {
    pub least: u32,
    pub step: u32,
    pub trials: u32,
    pub left: usize,
}

// What a search answers: the step, the trials made, and how many untried steps lie above the step.
#[derive(Clone, Copy, Debug, PartialEq, Eq)]
pub struct Found {
    pub step: u32,
    pub trials: u32,
    pub untried: u32,
}

// The step that passes whatever the recording holds.
#[tactic(auto, using(crate::specs::SearchLaws::sure_step))]
fn sure(allowed: u32) -> u32
    requires { allowed ≤ 32 }
    ensures { result ≡ sure allowed }
{
    let step = 32 * allowed + 15;
    step.min(TOP)
}

impl Search {
    // Before the first trial.
    pub fn begin(allowed: u32, budget: usize) -> Search
        requires { allowed ≤ 32 }
        ensures { result ≡ begun allowed budget }
    {
        Search {
            least: sure(allowed),
            step: TOP,
            trials: 0,
            left: budget,
        }
    }

    // A step above the sure one is to be tried, and a trial may be made.
    #[tactic(auto, unfolding(crate::specs::Progress::unfinished))]
    pub fn is_unfinished(self) -> bool
        ensures { result ≡ unfinished self }
    {
        self.left != 0 && self.least < self.step
    }

    // Behind a trial that failed.
    pub fn after_failure(self) -> Search
        requires { (0 < self.step) × (0 < self.left) × (self.trials < 1024) }
        ensures { result ≡ behind self }
    {
        Search {
            least: self.least,
            step: self.step - 1,
            trials: self.trials + 1,
            left: self.left - 1,
        }
    }

    // The answer behind a trial that passed: no step above it is untried.
    pub fn after_success(self) -> Found
        requires { self.trials < 1024 }
        ensures { result ≡ stopped self }
    {
        let trials = self.trials + 1;
        Found {
            step: self.step,
            trials,
            untried: 0,
        }
    }

    // The answer where no step passed: the sure step.
    pub fn without_success(self) -> Found
        requires { self.least ≤ self.step }
        ensures { result ≡ ended self }
    {
        Found {
            step: self.least,
            trials: self.trials,
            untried: self.step - self.least,
        }
    }
}

// The coarsest step that passes, as far as a budget of trials goes, where `passes` is the trial: it is called with steps from 16 to 1,024. Where its answers are those of
// a test, this is what the test's search finds.
pub fn find_coarsest<F: Fn(u32) -> bool>(allowed: u32, budget: usize, passes: F) -> Found
    requires allowed { allowed ≤ 32 }
    requires callable { (step : ℕ) → 16 ≤ step → step ≤ 1024 → F.pre passes step }
    ensures { (pass : ℕ → Bool) → Tells (F.post passes) pass → result ≡ found pass allowed budget }
{
    let mut search = Search::begin(allowed, budget);
    while search.is_unfinished() {
        if passes(search.step) {
            return search.after_success();
        }
        search = search.after_failure();
    }
    search.without_success()
}
