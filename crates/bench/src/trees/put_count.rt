//! A stage that counts its puts.
ghost use Rattle.std.specs.Prelude.{◌≡◌, IsTrue};

use ports::{Page, PageFault, Pages, Stage, StageFault, raised};

/// How many pages, by what they hold.
#[derive(Clone, Copy, Default)]
pub struct ByKind {
    /// Pages of cuts, and leaves of points.
    pub regions: u64,
    /// Nodes of trees over versions, and of multiversion trees: those that additions make.
    pub nodes: u64,
}

impl ByKind {
    /// Counts a page more.
    pub fn count(&mut self, page: &Page) {
        // The first byte tells the kind.
        if page[0] == 5 || page[0] == 11 {
            self.regions = raised(self.regions);
        } else {
            self.nodes = raised(self.nodes);
        }
    }
}

/// A stage whose puts are counted.
#[derive(Drop)]
pub struct PutCount<S: Stage + Drop> {
    pub stage: S,
    pub puts: ByKind,
}

impl<S: Stage + Drop> Pages for PutCount<S> {
    ghost tells = { λ c. S.tells c.stage };

    ghost map = { λ c. S.map c.stage };

    ghost gets = { λ c. S.gets c.stage };

    ghost faults = { λ c. S.faults c.stage };

    ghost allotted = { λ c. S.allotted c.stage };

    ghost limit = { λ c. S.limit c.stage };

    ghost chain = { λ c. S.chain c.stage };

    ghost free_in_order = { λ c. S.free_in_order c.stage };

    ghost Base = { S.Base };

    ghost base = { λ c. S.base c.stage };

    fn get(&mut self, page: u64, buf: &mut Page) -> Result<(), PageFault> {
        self.stage.get(page, buf)
    }
}

impl<S: Stage + Drop> Stage for PutCount<S> {
    ghost below_allotted = { λ c page bytes told there. S.below_allotted c.stage page bytes told there };

    ghost from_three = { λ c page bytes told there. S.from_three c.stage page bytes told there };

    ghost within_limit = { λ c. S.within_limit c.stage };

    ghost limit_fits = { λ c. S.limit_fits c.stage };

    fn allot(&mut self) -> Result<u64, StageFault> {
        self.stage.allot()
    }

    fn put(&mut self, page: u64, buf: &Page) -> Result<(), StageFault> {
        self.puts.count(buf);
        self.stage.put(page, buf)
    }

    fn free(&mut self, page: u64) -> Result<(), StageFault> {
        self.stage.free(page)
    }
}
