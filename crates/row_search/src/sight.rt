//! Which version of a row a reader sees.
//! `world_lists` says it for each search; only the look at one version (`glance`) asks whether it sees a writer.

ghost use Rattle.std.specs.Prelude.{◌≡◌};
ghost use Rattle.row_search.specs.Sights.{sees_by};

use read_view::ReadView;

/// How a reader sees rows.
#[derive(Drop)]
pub enum Sight {
    /// The first version that it wrote itself or that its view shows. Its id may be younger than the view.
    View { view: ReadView, own: u64 },
    /// The newest version, committed or not.
    Newest,
}

impl Sight {
    /// Whether what a transaction of this id wrote is seen.
    pub fn sees(&self, writer: u64) -> bool
        ensures { result ≡ sees_by self.now writer }
    {
        match self {
            Sight::View { view, own } => writer == *own || view.sees(writer),
            Sight::Newest => true,
        }
    }
}
