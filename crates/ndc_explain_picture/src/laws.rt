//! Laws of pictures. The functions do nothing: what each ensures is the law.
ghost use Rattle.std.specs.Prelude.{◌≡◌, true, List, Option};
ghost use Rattle.std.specs.List.{list_all};
ghost use Rattle.ndc_domain.specs.Clusters.{ClusterList};
ghost use Rattle.ndc_event.specs.declared.batch.Batch.{Batch};
ghost use Rattle.ndc_explain_picture.specs.Blocks.{batches_in, blocks_of, is_filled};
ghost use Rattle.ndc_explain_picture.specs.Layout.{is_placed, layout_of};

/// Each batch stands in exactly one box of a picture: the blocks, one after the other, are the batches in their order,
/// no block is empty, and each has a place, where its box is drawn.
pub fn each_batch_stands_in_one_box()
    ensures once { (batches : List Batch) → batches_in (blocks_of batches) ≡ batches }
    ensures filled { (batches : List Batch) → list_all is_filled (blocks_of batches) ≡ true }
    ensures placed { (clusters : Option ClusterList) (batches : List Batch) → list_all (is_placed (layout_of clusters (blocks_of batches)).places) (blocks_of batches) ≡ true }
{}
