//! Cues, lists of cues, and how much a list asks for: each cue is a piece of work with a release, a deadline and a budget, and
//! the loading factor of a list is the greatest share of an interval that its cues need. A list is admitted by that factor.
#![tactic(auto)]

pub mod cue;
pub mod list;
pub mod load;
mod loading;
pub mod refusal;
pub mod waiting;

#[cfg(test)]
mod tests {
    use crate::cue::Cue;
    use crate::list::CueList;
    use std::alloc::Global;
    use std::test::Fail;

    /// A list of cues, each as (release, deadline, budget).
    fn list_of(heap: Global, rows: &[(u32, u32, u32)]) -> Result<CueList, Fail> {
        let mut list = CueList::new(heap);
        for (release, deadline, budget) in rows {
            list.push(Cue::new(*release, *deadline, *budget, 0)?)?;
        }
        Ok(list)
    }

    #[test]
    fn loading_factor_of_three_cues(rt: HostRuntime) -> Result<(), Fail> {
        let list = list_of(rt.alloc(), &[(3, 18, 4), (5, 12, 4), (6, 14, 6)])?;
        assert_eq!(rt; list.loading_factor(rt.alloc())?, (10, 9, 5, 14));
        Ok(())
    }

    #[test]
    fn loading_factor_of_six_cues(rt: HostRuntime) -> Result<(), Fail> {
        let rows = [
            (0, 7, 4),
            (6, 9, 2),
            (3, 15, 6),
            (10, 18, 4),
            (20, 26, 4),
            (11, 30, 7),
        ];
        let list = list_of(rt.alloc(), &rows)?;
        assert_eq!(rt; list.loading_factor(rt.alloc())?, (27, 30, 0, 30));
        Ok(())
    }

    #[test]
    fn loading_factor_of_no_cue(rt: HostRuntime) -> Result<(), Fail> {
        let list = CueList::new(rt.alloc());
        assert_eq!(rt; list.loading_factor(rt.alloc())?, (0, 1, 0, 1));
        Ok(())
    }

    #[test]
    fn loading_factor_of_one_cue(rt: HostRuntime) -> Result<(), Fail> {
        let list = list_of(rt.alloc(), &[(0, 3, 3)])?;
        assert_eq!(rt; list.loading_factor(rt.alloc())?, (3, 3, 0, 3));
        Ok(())
    }
}
