//! The rows of a tree by their numbers, one for each host class.
ghost use Rattle.std.specs.Prelude.{◌≡◌, ◌<◌, length, IfOk, Contains};
ghost use Rattle.std.specs.List.{All};
ghost use Rattle.ftl_cursors.specs.items.HostRows.{AreMadeFor, AreNumbered, AreNumbersFor};
ghost use Rattle.ftl_cursors.specs.items.HostRows.{IsNumberFor};
ghost use Rattle.ftl_cursors.specs.items.HostRows.{hosts_of, is_one_host};

use crate::classes::class_blocks;
use crate::items::by_host::TreeRows;
use crate::items::columns::ItemRows;
use ftl_tree::Tree;
use std::alloc::{AllocError, Global};

impl<'a> TreeRows<'a> {
    /// The rows of a tree, with items of at most so many nodes but for the trees of hosts: at number
    /// 0 those for passes without a host class, and then those for each of these classes.
    pub fn new(
        alloc: Global,
        tree: &'a Tree<'a>,
        grain: u32,
        hosts: &[u32],
    ) -> Result<TreeRows<'a>, AllocError>
        ensures made { IfOk result (AreMadeFor tree.now grain hosts.now) }
    {
        let mut by_host = Vec::new(alloc);
        let small = ItemRows::new(alloc, tree, grain, None)?;
        by_host.push(small)?;
        for host in hosts {
            let rows = ItemRows::new(alloc, tree, grain, Some(*host))?;
            by_host.push(rows)?;
        }
        let blocks = class_blocks(alloc, tree)?;
        Ok(TreeRows {
            tree,
            grain,
            by_host,
            blocks,
        })
    }

    /// The number of the rows for a host class, or for none.
    pub fn number_for(&self, host: Option<u32>) -> usize
        requires known { Contains (hosts_of self.now) host }
        ensures number { IsNumberFor self.now host result }
    {
        let rows = self.by_host.as_slice();
        for number in 0..rows.len() {
            if is_one_host(rows[number].host, host) {
                return number;
            }
        }
        unreachable!()
    }

    /// The numbers of the rows for these host classes.
    pub fn numbers_for(
        &self,
        alloc: Global,
        hosts: &[Option<u32>],
    ) -> Result<Vec<usize>, AllocError>
        requires known { All (Contains (hosts_of self.now)) hosts.now }
        ensures numbers { IfOk result (λ v. AreNumbersFor self.now hosts.now v.items) }
    {
        let mut numbers = Vec::with_capacity(alloc, hosts.len())?;
        for host in hosts {
            numbers.push(self.number_for(*host))?;
        }
        Ok(numbers)
    }

    /// The rows of a number.
    pub fn numbered(&self, number: usize) -> &ItemRows<'a>
        requires known { number < length self.now.by_host.items }
        ensures rows { AreNumbered self.now number result.now }
    {
        let rows = self.by_host.as_slice();
        &rows[number]
    }
}

/// Whether the two are one class, or both none.
pub fn is_one_host(host: Option<u32>, other: Option<u32>) -> bool
    ensures one { result ≡ is_one_host host other }
{
    match (host, other) {
        (None, None) => true,
        (Some(host), Some(other)) => host == other,
        (None, Some(_)) => false,
        (Some(_), None) => false,
    }
}
