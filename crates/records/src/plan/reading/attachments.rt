// Attachments: one record from its bit map on, and the pass over all of them.
ghost use Rattle.std.specs.Prelude.{◌≡◌, [], ◌≤◌, ◌+◌, length};
ghost use Rattle.records.specs.paper.Plan as paper;
ghost use Rattle.records.specs.code.Readers.{map_read};
ghost use Rattle.records.specs.code.Passes.{raw_of, with_bits, Passed};
ghost use Rattle.records.specs.code.PlanPasses.{plan_reading, attachment_read, with_attachments};
ghost use Rattle.records.specs.code.Decoded.{attachments_of};

use crate::fields::judge::judged;
use crate::fields::passing::{Passing, refused};
use crate::fields::{
    CITATION, Elected, Field, PERSON, Wide, byte_at, election_at, mask_at, no_election, opt_at,
};
use crate::plan::{Attachment, Attachments};

// The bits, the attachment, and the place after it.
#[derive(Drop)]
pub enum AttachmentSeen {
    Got(u8, Attachment, usize),
    Bad,
}

pub fn attachment_at(s: &[u8], at: usize) -> AttachmentSeen
    ensures { attachment_read result ≡ map_read (with_bits paper.attachment_from) (raw_of paper.plan_formats 6 s.now at) }
{
    let Field::Got(bits, p) = byte_at(s, at, 0, 255) else {
        return AttachmentSeen::Bad;
    };
    let Wide::Got(members, p0) = mask_at(s, p, bits % 2 == 1) else {
        return AttachmentSeen::Bad;
    };
    let Field::Got(anchor, p1) = opt_at(s, p0, bits / 2 % 2 == 1, 0, PERSON) else {
        return AttachmentSeen::Bad;
    };
    let Field::Got(condition, p2) = opt_at(s, p1, bits / 4 % 2 == 1, 0, 255) else {
        return AttachmentSeen::Bad;
    };
    let Field::Got(citation, p3) = opt_at(s, p2, bits / 8 % 2 == 1, 0, CITATION) else {
        return AttachmentSeen::Bad;
    };
    let Field::Got(actor, p4) = opt_at(s, p3, bits / 16 % 2 == 1, 1, 255) else {
        return AttachmentSeen::Bad;
    };
    let Elected::Got(election, next) = election_at(s, p4, bits / 32 % 2 == 1) else {
        return AttachmentSeen::Bad;
    };
    if bits / 64 == 0 {
        let attachment = Attachment {
            members: members,
            anchor: anchor,
            condition: condition,
            citation: citation,
            actor: actor,
            election: election,
        };
        return AttachmentSeen::Got(bits, attachment, next);
    }
    AttachmentSeen::Bad
}

#[derive(Drop)]
pub struct AttachmentsRead {
    pub next: Passing,
    pub attachments: Attachments,
}

pub fn no_attachments() -> Attachments
    ensures { (attachments_of result ≡ []) × (result.count ≡ 0) × (length result.items ≡ 32) }
{
    let none = no_election();
    let blank = Attachment {
        members: 0,
        anchor: 0,
        condition: 0,
        citation: 0,
        actor: 0,
        election: none,
    };
    Attachments {
        count: 0,
        items: [blank; 32],
    }
}

pub fn read_attachments(s: &[u8], from: Passing) -> AttachmentsRead
    requires { from.record ≤ from.at }
    ensures { Passed plan_reading with_attachments 6 s.now from result.next (attachments_of result.attachments)
        × (result.next.record ≤ result.next.at) × (result.next.headed ≡ from.headed) }
{
    let mut attachments = no_attachments();
    let mut here = from;
    while here.at < s.len() && here.number == 0 {
        let at = here.at;
        if s[at] != 6 {
            break;
        }
        let AttachmentSeen::Got(bits, attachment, next) = attachment_at(s, at + 1) else {
            return AttachmentsRead {
                next: refused(here, 1),
                attachments: attachments,
            };
        };
        let n = attachments.count;
        here.number = judged(n, 32, bits & 31 == 31, from.headed);
        if here.number != 0 {
            break;
        }
        attachments.items[n] = attachment;
        attachments.count = n + 1;
        here.at = next;
        here.record = here.record + 1;
    }
    AttachmentsRead {
        next: here,
        attachments: attachments,
    }
}
