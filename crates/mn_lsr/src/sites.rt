ghost use Rattle.std.specs.Prelude.{◌≡◌, ◌≢◌, ◌<◌, ◌+◌, ◌↔◌, ℕ, Some, OnOk, OnErr, IfOk, IsErrOf, length, slice_index_or};
ghost use Rattle.mn_lsr.specs.Prelude.{most_labels, greatest, attached, attachments_in, meaning_of, use_of};
ghost use Rattle.mn_labels.specs.declared.meaning.Bind.TheVariants as bind;
ghost use Rattle.mn_lfib.specs.declared.answer.Use.TheVariants as use_kind;
ghost use Rattle.mn_lsr.specs.Standing.{IsAttachment, attachments};
ghost use Rattle.mn_lsr.specs.Parts.{Stands};

use crate::parts::Parts;
use mn_base::SiteNo;
use mn_labels::LabelBad;
use std::alloc::AllocError;

/// How often a site was attached, and room to count it once more.
fn attached_so_far(attached: &mut Vec<u32>, site: SiteNo) -> Result<u32, AllocError>
    ensures count { IfOk result (λ count. count ≡ slice_index_or attached.old.items site.0 0) }
    ensures there { OnOk result (site.0 < length attached.new.items) }
    ensures same { (other : ℕ) → slice_index_or attached.new.items other 0 ≡ slice_index_or attached.old.items other 0 }
{
    let at = usize::from(site.0);
    if at < attached.len() {
        return Ok(attached[at]);
    }
    attached.resize(at + 1, 0)?;
    Ok(0)
}

impl Parts {
    /// Gives the next label to a new attachment of a site. A refusal changes nothing.
    pub(crate) fn attach(&mut self, site: SiteNo) -> Result<u32, LabelBad>
        requires stands { Stands self.old }
        ensures stands { Stands self.new }
        ensures label { IfOk result (λ label. label ≡ greatest self.old.labels.labels.given + 1) }
        ensures given { OnOk result (self.new.labels.labels ≡ attached self.old.labels.labels (bind.Site site (attachments site.0 self.old.labels.labels.given + 1))) }
        ensures used { IfOk result (λ label. use_of self.new.lfib label ≡ Some (use_kind.Site site)) }
        ensures others { IfOk result (λ label. (other : ℕ) → other ≢ label → use_of self.new.lfib other ≡ use_of self.old.lfib other) }
        ensures spent { IsErrOf result LabelBad.Spent ↔ (attachments_in self.old.labels.labels.given + length self.old.loopbacks.items ≡ most_labels + 1) }
        ensures unchanged { OnErr result ((self.new.labels.labels ≡ self.old.labels.labels) × (self.new.lfib ≡ self.old.lfib)) }
        ensures kept { self.new ≡ record self.old { labels = self.new.labels; lfib = self.new.lfib; attached = self.new.attached } }
    {
        let Some(label) = self.labels.next() else {
            return Err(LabelBad::Spent);
        };
        let Ok(count) = attached_so_far(&mut self.attached, site) else {
            return Err(LabelBad::NoMemory);
        };
        let Ok(()) = self.labels.reserve(1) else {
            return Err(LabelBad::NoMemory);
        };
        let Ok(()) = self.lfib.set_site(label, Some(site)) else {
            return Err(LabelBad::NoMemory);
        };
        let Ok(label) = self.labels.attach(site, count + 1) else {
            unreachable!()
        };
        let _given = self.labels.given();
        self.attached[usize::from(site.0)] = count + 1;
        Ok(label)
    }

    /// Ends the attachment that has a label.
    pub(crate) fn detach(&mut self, label: u32)
        requires stands { Stands self.old }
        requires attachment { IsAttachment (meaning_of self.old.labels.labels label) }
        ensures stands { Stands self.new }
        ensures ended { use_of self.new.lfib label ≡ Some use_kind.Ended }
        ensures others { (other : ℕ) → other ≢ label → use_of self.new.lfib other ≡ use_of self.old.lfib other }
        ensures kept { self.new ≡ record self.old { lfib = self.new.lfib } }
    {
        let _given = self.labels.given();
        let Ok(()) = self.lfib.set_site(label, None) else {
            unreachable!()
        };
    }
}
