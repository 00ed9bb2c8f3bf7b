ghost use Rattle.std.specs.Prelude.{◌<◌, length};
ghost use Rattle.flat.specs.Drafts.{Emptied, Closed};

use crate::flat::Flat;

impl Flat {
    // Empties the arrays; their room stays.
    pub(crate) fn clear(&mut self)
        ensures { Emptied self.new }
    {
        self.denominator = 1;
        self.labels.clear();
        self.starts.clear();
        self.offsets.clear();
        self.branches.clear();
    }

    // Ends the arrays with the numbers of choices and of branches, and sets the denominator.
    pub(crate) fn close(&mut self, denominator: u32)
        requires { (length self.old.starts.items < 513) × (length self.old.offsets.items < 2049) }
        ensures { Closed denominator self.old self.new }
    {
        let choices = self.offsets.len();
        self.starts.push_reserved(choices);
        let branches = self.branches.len();
        self.offsets.push_reserved(branches);
        self.denominator = denominator;
    }
}
