// Tests of the audit: which casts go up, and the audits of sources.

mod goings;
mod sources;
