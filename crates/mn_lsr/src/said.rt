use mn_base::LinkNo;

/// A PDU that the node says on a link: one message, and its bytes (RFC 5036, section 3.1).
#[derive(Drop)]
pub struct Said {
    pub link: LinkNo,
    pub bytes: Vec<u8>,
}
